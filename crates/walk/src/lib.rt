// A crate of definitions: the one walk, which the directory and the table take at a visitor.
#![tactic(auto)]
