// Nothing runs here: demand 3. The definitions stand in specs/, the theorem in proofs/.
#![tactic(auto)]
