// A crate of laws: what a copy written anew leaves on the volume, wherever the writes stop.
#![tactic(auto)]
