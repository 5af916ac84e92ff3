// Laws of numbers and lists that two crates or more want: no code. Start at proofs/Lib.antt.
#![tactic(auto)]
