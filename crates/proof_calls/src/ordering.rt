//! Calls of `dependency`.

use crate::answers::{Answer, NoAnswer, with_numbers};
use crate::fitting::fitted;
use dependency::dependencies::order;
use dependency::faults::OrderFault;
use dependency::orders::Order;
use std::alloc::Global;

/// `order` with the occurrences after it.
pub fn order_text(alloc: Global, order: &Order) -> Answer {
    let mut answer = String::from_str(alloc, "order")?;
    for i in 0..order.len() {
        let occurrence = order.at(i);
        answer.push_str(format!(in alloc; " {occurrence}")?.as_str())?;
    }
    Ok(answer)
}

/// `cycle` with the occurrences of the closed chain after it.
fn fault_text(alloc: Global, fault: &OrderFault) -> Answer {
    match fault {
        OrderFault::Memory => Err(NoAnswer::Memory),
        OrderFault::Cycle(chain) => with_numbers(alloc, "cycle", chain.as_slice()),
    }
}

/// `(FORMULA TREE)`: `order` with the occurrences in their order, or `cycle` with a closed chain of them.
pub fn ordered(alloc: Global, arguments: &str) -> Answer {
    let fitted = fitted(alloc, arguments)?;
    match order(alloc, &fitted) {
        Ok(order) => order_text(alloc, &order),
        Err(fault) => fault_text(alloc, &fault),
    }
}
