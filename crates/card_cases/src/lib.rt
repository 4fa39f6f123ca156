// What is asked of a card, in instances that the checker computes. There is no code here: read specs/Worked.antt.
#![tactic(auto)]
