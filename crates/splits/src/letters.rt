// Orders by their letters: R for row-major, C for column-major.
ghost use Rattle.std.specs.Prelude.{◌≡◌};
ghost use Rattle.splits.specs.Orders.{IsLetterOf, IsOrderOf};

use crate::order::Order;
use faults::Cause;

impl TryFrom<char> for Order {
    type Error = Cause;

    ghost try_from_gives = { IsOrderOf };

    fn try_from(letter: char) -> Result<Order, Cause> {
        match letter {
            'R' => Ok(Order::RowMajor),
            'C' => Ok(Order::ColumnMajor),
            _ => Err(Cause::Letter {
                code: letter as u32,
            }),
        }
    }
}

impl From<Order> for char {
    ghost from_gives = { IsLetterOf };

    fn from(order: Order) -> char {
        match order {
            Order::RowMajor => 'R',
            Order::ColumnMajor => 'C',
        }
    }
}
