// No code: document 01's "given exactly when" for 10 to 20, as rows of facts that are proved to agree with the definitions that the calls meet.
#![tactic(auto)]
