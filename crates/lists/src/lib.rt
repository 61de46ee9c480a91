// Functions on lists that the definitions of the crates above use and the kit lacks, with their laws. There is no code here:
// the functions stand in specs/, what holds of them in proofs/.

#![tactic(auto)]
