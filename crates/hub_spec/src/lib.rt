// The hub's log: what it holds, what taking in octets answers, and the laws of that. The functions are in `hub`.
#![tactic(auto)]
