// No code: open claims, their owners, waits, takeover, progress and the bound on rounds, as mathematics (specs/ and proofs/).
#![tactic(auto)]
