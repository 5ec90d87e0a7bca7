// Commutative algebra, proofs only: rings and a solver for their identities, and the polynomials over a field.
// Nothing here is particular to finite fields; the crate `algebra` applies it to the codes of a coefficient field
// and names its main theorems in contracts.
#![tactic(auto)]
