// No code: document 01's demand on a contract, that any two results which it permits are equal, of the calls for C whose contract is a record.
#![tactic(auto)]
