// What is asked of the detector, in three demands, and that it meets them. There is no code here: read specs/Demands.antt first.
#![tactic(auto)]
