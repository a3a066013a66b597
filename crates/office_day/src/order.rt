// What a day is ordered on, as the arguments say it.
use piles::Layer;

// What the layers are put over.
#[derive(Drop)]
pub(crate) enum Base<'a> {
    // the network that a text states
    Text {
        path: &'a str,
    },
    // a row of stations
    Promenade {
        stations: usize,
        capacity: u16,
        charge: u32,
    },
}

// A network, and the layers over it.
#[derive(Drop)]
pub(crate) struct Order<'a> {
    pub(crate) base: Base<'a>,
    // the lower layer
    pub(crate) first: Option<Layer>,
    // the upper one
    pub(crate) second: Option<Layer>,
}

// A number that a promenade or a layer is made with: one beyond the type is beyond the limit, too, and taken as that.
fn most(word: &str) -> Option<u64> {
    word.parse().ok()
}

fn bikes(word: &str) -> Option<u16> {
    Some(u16::try_from(most(word)?).unwrap_or(u16::MAX))
}

fn cents(word: &str) -> Option<u32> {
    Some(u32::try_from(most(word)?).unwrap_or(u32::MAX))
}

// A promenade by its numbers, and the words behind them.
fn promenade_of(words: &[String]) -> Option<(Base<'_>, &[String])> {
    let [stations, capacity, charge, rest @ ..] = words else {
        return None;
    };
    let row = Base::Promenade {
        stations: usize::try_from(most(stations.as_str())?).unwrap_or(usize::MAX),
        capacity: bikes(capacity.as_str())?,
        charge: cents(charge.as_str())?,
    };
    Some((row, rest))
}

// What the first words name, and the words behind them.
fn base_of(words: &[String]) -> Option<(Base<'_>, &[String])> {
    let (first, rest) = words.split_first()?;
    match first.as_str() {
        "promenade" => promenade_of(rest),
        path => Some((Base::Text { path }, rest)),
    }
}

// The layer that two words name, and the words behind them.
fn layer_of(words: &[String]) -> Option<(Layer, &[String])> {
    let [name, number, rest @ ..] = words else {
        return None;
    };
    let layer = match name.as_str() {
        "limit" => Layer::Limit {
            bikes: bikes(number.as_str())?,
        },
        "yard" => Layer::Yard {
            cents: cents(number.as_str())?,
        },
        _ => return None,
    };
    Some((layer, rest))
}

// The layer that the first words name, or none where there are no words, and the words behind them.
fn layer_if_any(words: &[String]) -> Option<(Option<Layer>, &[String])> {
    if words.is_empty() {
        return Some((None, words));
    }
    let (layer, rest) = layer_of(words)?;
    Some((Some(layer), rest))
}

impl Order<'_> {
    // What a program's words order, the first of which names the program.
    pub(crate) fn of_words(words: &[String]) -> Option<Order<'_>> {
        let (_, words) = words.split_first()?;
        let (base, rest) = base_of(words)?;
        let (first, rest) = layer_if_any(rest)?;
        let (second, rest) = layer_if_any(rest)?;
        rest.is_empty().then_some(Order {
            base,
            first,
            second,
        })
    }
}

#[cfg(test)]
mod tests {
    use super::*;
    use std::alloc::{AllocError, Global};
    use std::test::Fail;

    // The words of a line.
    fn words(heap: Global, line: &str) -> Result<Vec<String>, AllocError> {
        let mut words = Vec::new(heap);
        for word in line.split(' ') {
            words.push(String::from_str(heap, word)?)?;
        }
        Ok(words)
    }

    // Numbers beyond their types are the largest of the types, so above every limit.
    #[test]
    fn a_promenade_has_layers(rt: HostRuntime) -> Result<(), Fail> {
        let words = words(
            rt.alloc(),
            "office_day promenade 5 70000 100 limit 3 yard 4294967296",
        )?;
        let order = Order::of_words(words.as_slice()).ok_or("no order")?;
        assert!(rt;
            matches!(
                order.base,
                Base::Promenade {
                    stations: 5,
                    capacity: 65_535,
                    charge: 100
                }
            )
        );
        assert_eq!(rt; order.first, Some(Layer::Limit { bikes: 3 }));
        assert_eq!(rt;
            order.second,
            Some(Layer::Yard {
                cents: 4_294_967_295
            })
        );
        Ok(())
    }

    #[test]
    fn a_text_stands_alone(rt: HostRuntime) -> Result<(), Fail> {
        let words = words(rt.alloc(), "office_day ./promenade")?;
        let order = Order::of_words(words.as_slice()).ok_or("no order")?;
        assert!(rt; matches!(order.base, Base::Text { .. }));
        assert_eq!(rt; order.first, None);
        assert_eq!(rt; order.second, None);
        Ok(())
    }

    #[test]
    fn other_words_are_no_order(rt: HostRuntime) -> Result<(), Fail> {
        for line in [
            "office_day",
            "office_day promenade 5 20",
            "office_day promenade 5 20 -1",
            "office_day text limit",
            "office_day text limit x",
            "office_day text fence 3",
            "office_day text limit 3 yard 2 limit 1",
        ] {
            let words = words(rt.alloc(), line)?;
            assert!(rt; Order::of_words(words.as_slice()).is_none(), "{line}");
        }
        Ok(())
    }
}
