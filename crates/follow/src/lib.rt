#![tactic(auto)]

// The step theorems: on undamaged tables with room, what each call leaves means the rules' next state, its answer is the rules'
// answer, and the tables stay undamaged. There is no code here. Assumes nothing.
