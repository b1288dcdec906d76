// A crate of laws: how many sector writes a call makes at most, and that as many left are as good as any more.
#![tactic(auto)]
