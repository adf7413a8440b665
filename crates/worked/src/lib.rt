// Worked examples, each a test.
#![tactic(auto)]

#[cfg(test)]
mod dispatch_examples;
#[cfg(test)]
mod listing_examples;
#[cfg(test)]
mod plan_examples;
#[cfg(test)]
mod refusal_examples;
#[cfg(test)]
mod sample;
#[cfg(test)]
mod stream_examples;
#[cfg(test)]
mod table_examples;
#[cfg(test)]
mod window_examples;
