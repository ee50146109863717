// No code: what every call keeps. Its record stays sound, its file is what the header settled, and what is refused changes nothing.
#![tactic(auto)]
