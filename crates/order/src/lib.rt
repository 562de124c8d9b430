// Lists of requests in another order: definitions and theorems, no code.
#![tactic(auto)]
