//! What a run of any discrete-event machine is, in definitions alone. The laws of runs are lemmas here,
//! and contracts in `des_laws`.
#![tactic(auto)]
