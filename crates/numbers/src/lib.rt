#![tactic(auto)]

// Laws of whole numbers that a proof of signed code needs and the library lacks. There is no code here: callers cite specs/ and proofs/.
