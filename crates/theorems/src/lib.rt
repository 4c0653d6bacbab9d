// The theorems of docs/PROMISES.md, in a file for the entries, for each demand, for each section of 01 and for each request of 02: each sentence with the
// theorems that state it. A name that several crates have stands behind its crate: `reader-Refused` is the reader's.
#![tactic(auto)]
