// What the input of the program `line` is read as, and what the program prints of it.
#![tactic(auto)]

#[cfg(test)]
mod inputs;
#[cfg(test)]
mod places;
#[cfg(test)]
mod texts;
