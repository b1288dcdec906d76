// Nothing runs here: what the bytes of a volume say of its files, and how the steps of the calls change that. The laws stand in proofs/.
#![tactic(auto)]
