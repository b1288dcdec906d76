// Nothing runs here: the walks of the directory and of the table give what the views and the layout say. The laws stand in proofs/.
#![tactic(auto)]
