// What the programs write and read: text, the line of a refusal, lines of hexadecimal, host words from bytes, and numbers.
#![tactic(auto)]
