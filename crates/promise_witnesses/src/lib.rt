// No code: calls that split, computed from the definitions, so that the demands speak of something; and that no useless build keeps them.
#![tactic(auto)]
