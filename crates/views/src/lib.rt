// Nothing runs here: how a finished commit, a format and a record's write show in the views of the volume. The laws stand in proofs/.
#![tactic(auto)]
