//! Tests of representations: each call of each of them, calls with their replies written out, texts and sizes.

mod each_call;
mod texts;
mod written_out;
