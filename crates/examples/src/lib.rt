// examples: what the two calls give on worked examples (specs/Acceptance.antt), by computation. No code: an example of a whole check takes
// seconds, and here no wrong program of another crate checks it again.

#![tactic(auto)]
