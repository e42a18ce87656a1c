//! The order in which numbers can be evaluated that read one another, or a closed path among them.
ghost use Rattle.depend_graph.specs.Order.{AreBelow};

use crate::page::Page;
use depend_graph::{OrderEnd, order};

pub fn write(page: &mut Page) {
    page.add("# Orders");
    add_order(page, 4, &[(0, 1), (0, 3), (1, 2), (3, 2)]);
    add_order(page, 2, &[(0, 1), (1, 0)]);
    add_order(page, 1, &[(0, 0)]);
    add_order(page, 5, &[(4, 1), (0, 4), (1, 3), (3, 4), (0, 3)]);
}

// Adds the numbers in their order, or those of the closed path.
fn add_order(page: &mut Page, count: u32, edges: &[(u32, u32)])
    requires { AreBelow count edges.now }
{
    match order(page.alloc, count, edges) {
        Ok(numbers) => add_numbers(page, "in order:", numbers.as_slice()),
        Err(OrderEnd::Cycle(path)) => add_numbers(page, "in a circle:", path.as_slice()),
        Err(OrderEnd::Memory) => page.miss(),
    }
}

fn add_numbers(page: &mut Page, what: &str, numbers: &[u32]) {
    page.put(what);
    for number in numbers {
        page.put_made(format!(in page.alloc; " {number}"));
    }
    page.add("");
}
