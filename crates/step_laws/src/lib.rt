// What every step of a session keeps, and the ways in which it can end: laws that the boundaries' proofs and the claims
// cite. The crate has no function; the laws are in proofs/.

#![tactic(auto)]
