// Laws alone, in specs/: signed words and lists of words.
#![tactic(auto)]
