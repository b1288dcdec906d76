// Nothing runs here: what a reader gives of a file, for a history of calls. The laws stand in proofs/.
#![tactic(auto)]
