// What the entries promise: theorems about the answers that the contracts of `reader` and `writer` fix. The definitions that serve the statements stand in specs/, the theorems in proofs/.
#![tactic(auto)]
