//! Why lines of a checkout are refused.

ghost use Rattle.std.specs.Prelude.{◌≡◌, option_map};
ghost use Rattle.market_events.specs.Stocks.{first_some, line_refusal};
ghost use Rattle.stock_service.specs.Tables.{sums_at};

use crate::levels::Levels;
use cart_replica::ProductCopy;
use market_amounts::ProductKey;
use market_events::{Look, PricedLine, StockRule};

// The product of the first line that is refused, and why.
pub fn first_refused(
    copy: &ProductCopy,
    levels: &Levels,
    lines: &[PricedLine],
) -> Option<(ProductKey, StockRule)>
    ensures { result ≡ first_some (line_refusal (sums_at copy.now levels.now)) lines.now }
{
    for line in lines {
        if let Some(rule) = refusal(copy, levels, line) {
            return Some((line.key, rule));
        }
    }
    None
}

// Why a line is refused, if it is.
fn refusal(copy: &ProductCopy, levels: &Levels, line: &PricedLine) -> Option<StockRule>
    ensures { option_map (λ rule. (line.now.key, rule)) result
        ≡ line_refusal (sums_at copy.now levels.now) line.now }
{
    match copy.look(line.key) {
        Look::Unknown | Look::Gone(_) => Some(StockRule::Gone),
        Look::Live(..) => {
            if levels.level(line.key).free() < line.quantity.get() {
                Some(StockRule::Short)
            } else {
                None
            }
        }
    }
}
