// The names of a script, and the layouts that they are bound to.
use stacks::shared_stack::SharedStack;
use std::collections::HashMap;

pub type Names = HashMap<Vec<u8>, SharedStack>;
