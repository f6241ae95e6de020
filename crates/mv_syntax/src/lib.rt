// The bit codes and the language of syntax tables: definitions and their laws, and no code.
#![tactic(auto)]
