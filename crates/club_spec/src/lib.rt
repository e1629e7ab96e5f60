// A club's evening: what the items of its input are, what the book prints for them, and the laws of that. The functions are in `club`.

#![tactic(auto)]
