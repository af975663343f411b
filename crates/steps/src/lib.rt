// No code: a turn is a step of the theory in `waiting`, or idle; verdicts are kept; what turns one after the other come to (proofs/).
// And turns and the checks of a table go by the words used alone (specs/Agreeing; proofs/SameTurns, SameChecks).
#![tactic(auto)]
