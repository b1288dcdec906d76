// Nothing runs here: points in a hatch, in demand 3. The definitions stand in specs/, the laws in proofs/.
#![tactic(auto)]
