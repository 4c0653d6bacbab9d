// Readers of bytes and of rows: what they are and how they are put together stands in specs/, the laws that every reader's proof cites in proofs/.
#![tactic(auto)]
