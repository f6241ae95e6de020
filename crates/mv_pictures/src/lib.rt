// Pictures: definitions, from the units of a stream to what is decoded and put out, and no code.
#![tactic(auto)]
