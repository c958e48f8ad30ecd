//! The calls that read visible tokens alone, over streams with and without invisible groups.
mod argument_lists;
mod pruned;
mod replays;
mod texts;
mod values;
