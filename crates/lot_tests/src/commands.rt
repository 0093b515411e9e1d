//! The canonical texts of commands.

use crate::assert_text;
use lot_print::print;
use lot_read::read;

/// Commands of each kind, and postings of each form.
const TEXT: &str = "\
2020/1/5 open Assets:Broker \"STRICT\"
2020-01-05 open Assets:Broker USD
2020-01-05 open Assets:Broker USD , EUR,USD \"FIFO\"
2020-01-05 open Assets:Broker \"LIFO\"
2020-01-05 open Assets:Broker HOOL \"HIFO\"
2020-01-05 open Assets:Broker \"NONE\"
9999-12-31 close Expenses:0 ; never
0001/1/1 commodity HOOL.B
2020-02-29 price HOOL 1,502.1200 USD
2020-03-15 txn
2020-03-15 !
2020-03-15 * \"\"
2020-03-15 ! \"Broker\"   \"Buy 10\"
2020-03-15 * \"Café \\\"Zum Löwen\\\" \\\\ ☕\" \"\\\\\\\"a\tb\\\\\"
2020-03-15 * \"Buy\"
  Assets:A +10. HOOL
  Assets:A -0.00000001 HOOL{} @ -0 USD
  Assets:A 1,234.50 H {2020-1-5, \"lot 1\", 502.120 USD}
  Assets:A 1 H {502.120} @ 0.5 USD
  Assets:A 1 H {USD} @@ 5,021.20 USD
  Assets:A 1 H {2020-01-05}
  Assets:A 1 H {\"é\"}
  Assets:A 1 H {2020-01-05, USD}
  Assets:A 1 H {\"x\", 1}
  Assets:A 1 H {\"x\", 2020-01-05}
  Assets:A 0 H {{0}}
  Assets:A 1 H {{5021.2 USD}} @@ 0 EUR
  Assets:A 1 H {{\"x\", 0.1 EUR, 1969-12-31}} @ 1 EUR
  Assets:A 1 H {{\"x\", 0.1}}
  Income:Gains
  Assets:A
";

/// Their canonical texts.
const CANONICAL: &str = "\
2020-01-05 open Assets:Broker
2020-01-05 open Assets:Broker USD
2020-01-05 open Assets:Broker USD,EUR,USD \"FIFO\"
2020-01-05 open Assets:Broker \"LIFO\"
2020-01-05 open Assets:Broker HOOL \"HIFO\"
2020-01-05 open Assets:Broker \"NONE\"
9999-12-31 close Expenses:0
0001-01-01 commodity HOOL.B
2020-02-29 price HOOL 1502.12 USD
2020-03-15 *
2020-03-15 !
2020-03-15 * \"\"
2020-03-15 ! \"Broker\" \"Buy 10\"
2020-03-15 * \"Café \\\"Zum Löwen\\\" \\\\ ☕\" \"\\\\\\\"a\tb\\\\\"
2020-03-15 * \"Buy\"
  Assets:A 10 HOOL
  Assets:A -0.00000001 HOOL {} @ 0 USD
  Assets:A 1234.5 H {502.12 USD, 2020-01-05, \"lot 1\"}
  Assets:A 1 H {502.12} @ 0.5 USD
  Assets:A 1 H {USD} @@ 5021.2 USD
  Assets:A 1 H {2020-01-05}
  Assets:A 1 H {\"é\"}
  Assets:A 1 H {USD, 2020-01-05}
  Assets:A 1 H {1, \"x\"}
  Assets:A 1 H {2020-01-05, \"x\"}
  Assets:A 0 H {{0}}
  Assets:A 1 H {{5021.2 USD}} @@ 0 EUR
  Assets:A 1 H {{0.1 EUR, 1969-12-31, \"x\"}} @ 1 EUR
  Assets:A 1 H {{0.1, \"x\"}}
  Income:Gains
  Assets:A
";

#[test]
fn commands_have_a_text(rt: HostRuntime) {
    let commands = read(rt.alloc(), TEXT.as_bytes()).expect(&rt, "commands");
    let mut printed = String::new(rt.alloc());
    for command in &commands {
        let text = print(rt.alloc(), command).expect(&rt, "memory");
        printed.push_str(text.as_str()).expect(&rt, "memory");
    }
    assert_text(&rt, printed.as_str(), CANONICAL);
}
