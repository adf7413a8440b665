// A second scheduler, over the history of arrivals, and tests that compare the library with it.
#![tactic(auto)]

#[cfg(test)]
mod compare;
#[cfg(test)]
mod draw;
#[cfg(test)]
mod drawn_plans;
#[cfg(test)]
mod drawn_tables;
#[cfg(test)]
mod falls;
#[cfg(test)]
mod fixed_plans;
#[cfg(test)]
mod fixed_tables;
#[cfg(test)]
mod kept;
#[cfg(test)]
mod key;
#[cfg(test)]
mod library;
#[cfg(test)]
mod offered;
#[cfg(test)]
mod order;
#[cfg(test)]
mod reached;
#[cfg(test)]
mod scheduler;
#[cfg(test)]
mod shown;
#[cfg(test)]
mod spelled;
#[cfg(test)]
mod written;
