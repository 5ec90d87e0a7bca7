// The walk along a line beside the places on it.
use script::{Placed, Plan, Walk, read, request_on};
use std::alloc::Global;
use std::test::Fail;

// The answer to a request, as it is printed.
fn answered(heap: Global, plan: &Plan, line: &str) -> Result<String, Fail> {
    let place = request_on(line).ok_or("no request")?.place(&plan.curve);
    let answer = Placed(&place);
    Ok(format!(in heap; "{answer}")?)
}

#[test]
fn requests(rt: HostRuntime) -> Result<(), Fail> {
    let heap = rt.alloc();
    let plan = read("prime 5\nsetting 1 0 0 1 1\nsteps 0")?;
    assert_eq!(rt;
        answered(heap, &plan, "find 0")?.as_str(),
        "Q = 1, P = 0, offset 0"
    );
    assert_eq!(rt;
        answered(heap, &plan, "find 5")?.as_str(),
        "Q = x + 2, P = 0, offset 0"
    );
    assert_eq!(rt;
        answered(heap, &plan, "add 2 8")?.as_str(),
        "Q = 1, P = 0, offset 1"
    );
    assert_eq!(rt;
        answered(heap, &plan, "add 1 1")?.as_str(),
        "Q = x + 1, P = 1, offset 0"
    );
    assert_eq!(rt;
        answered(heap, &plan, "multiple 5 3")?.as_str(),
        "Q = x, P = 1, offset 0"
    );
    assert_eq!(rt;
        answered(heap, &plan, "multiple 0 3")?.as_str(),
        "Q = 1, P = 0, offset 0"
    );
    Ok(())
}

// Every stop of a walk over a piled extension is found as the place of its distance.
#[test]
fn stops(rt: HostRuntime) -> Result<(), Fail> {
    let heap = rt.alloc();
    let plan = read("prime 3\nextend 2\nextend 4\nsetting 1 0 7 0 3 80 1\nsteps 40")?;
    for stop in Walk::new(&plan) {
        let distance = stop.distance;
        let line = format!(in heap; "find {distance}")?;
        let request = request_on(line.as_str()).ok_or("no request")?;
        let place = request.place(&plan.curve);
        assert_eq!(rt; place.offset(), 0);
        assert!(rt; *place.ideal() == stop.ideal);
    }
    Ok(())
}
