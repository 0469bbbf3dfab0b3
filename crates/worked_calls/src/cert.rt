//! Calls that read and write certificates.

use crate::expecting::{expect, list_of};
use std::alloc::{AllocError, Global};
use std::process::Abort;
use ta_base::List;
use ta_cert::{CertFault, Line, Node, Order, Proof, Reader, read_again, write_cert};

const CERTIFICATE: &str = "threshold-certificate 1\npattern 0\ne\nf 1:1 5:1\nend\n";

const LINES: &str = "1 header 1, 2 pattern 0, 3 extend, 4 leaf 1*1 5*1, 5 end, ";

const ORDER: &str = "threshold-certificate 2\no 0 1\nf 0:1 2:1\nend\n";

const ORDER_LINES: &str = "1 header 2, 2 order 0 1, 3 leaf 0*1 2*1, 4 end, ";

/// Writes a word and the number behind it.
fn show_number(text: &mut String, word: &str, number: i128) -> Result<(), AllocError> {
    write!(text, "{word}{number}")
}

/// Writes the rows and multipliers of a leaf.
fn show_pairs(text: &mut String, pairs: &[(u32, i128)]) -> Result<(), AllocError> {
    text.push_str(" leaf")?;
    for (row, multiplier) in pairs {
        show_number(text, " ", i128::from(*row))?;
        show_number(text, "*", *multiplier)?;
    }
    Ok(())
}

/// Writes a node in other words than a certificate's. The others are of no certificate here.
fn show_node(text: &mut String, node: &Node) -> Result<(), AllocError> {
    match node {
        Node::Extend => text.push_str(" extend"),
        Node::Leaf(pairs) => show_pairs(text, pairs.as_slice()),
        Node::Order { before, after } => {
            show_number(text, " order ", i128::from(*before))?;
            show_number(text, " ", i128::from(*after))
        }
        _ => text.push_str(" another node"),
    }
}

/// Writes a line in other words than a certificate's.
fn show_line(text: &mut String, line: &Line) -> Result<(), AllocError> {
    match line {
        Line::Header(version) => show_number(text, " header ", i128::from(*version)),
        Line::Pattern(pattern) => show_number(text, " pattern ", i128::from(*pattern)),
        Line::Tree(node) => show_node(text, node),
        Line::End => text.push_str(" end"),
    }
}

/// Writes lines, each behind its number.
fn show_lines(text: &mut String, lines: &[(u64, Line)]) -> Result<(), AllocError> {
    for (number, line) in lines {
        show_number(text, "", i128::from(*number))?;
        show_line(text, line)?;
        text.push_str(", ")?;
    }
    Ok(())
}

/// Compares what an answer says.
fn expect_answer(
    rt: &impl Abort,
    alloc: Global,
    answer: Result<List<(u64, Line)>, CertFault>,
    want: &str,
) {
    let mut text = String::new(alloc);
    let shown = match &answer {
        Ok(lines) => show_lines(&mut text, lines.as_slice()),
        Err(fault) => write!(&mut text, "{fault:?}"),
    };
    expect(rt, shown.is_ok() && text.as_str() == want, want);
}

/// The tree of a pattern: a node, and a leaf below it.
fn tree(rt: &impl Abort, alloc: Global) -> Proof {
    let pairs = list_of(rt, alloc, &[(1, 1), (5, 1)]);
    let nodes = vec![in alloc; Node::Extend, Node::Leaf(pairs)].expect(rt, "memory");
    Proof {
        pattern: 0,
        nodes: List::from_vec(nodes),
    }
}

#[test]
fn writes_a_certificate(rt: HostRuntime) {
    let proofs = [tree(&rt, rt.alloc())];
    let text = write_cert(rt.alloc(), &[], proofs.as_slice()).expect(&rt, "memory");
    expect(&rt, text.as_str() == CERTIFICATE, CERTIFICATE);
    for size in [1, 2, 3, 7, 1000] {
        let again = read_again(rt.alloc(), &[], proofs.as_slice(), size, 1_048_576);
        expect_answer(&rt, rt.alloc(), again, LINES);
    }
}

/// That one guard comes before another.
fn order(rt: &impl Abort, alloc: Global) -> Order {
    Order {
        before: 0,
        after: 1,
        multipliers: list_of(rt, alloc, &[(0, 1), (2, 1)]),
    }
}

#[test]
fn writes_an_order(rt: HostRuntime) {
    let orders = [order(&rt, rt.alloc())];
    let text = write_cert(rt.alloc(), orders.as_slice(), &[]).expect(&rt, "memory");
    expect(&rt, text.as_str() == ORDER, ORDER);
    let again = read_again(rt.alloc(), orders.as_slice(), &[], 5, 1_048_576);
    expect_answer(&rt, rt.alloc(), again, ORDER_LINES);
}

#[test]
fn stays_refused(rt: HostRuntime) {
    let mut reader = Reader::new(rt.alloc(), 1_048_576);
    expect_answer(&rt, rt.alloc(), reader.feed(b"x\n"), "Line(1)");
    expect_answer(&rt, rt.alloc(), reader.feed(b""), "Failed");
    let end = reader.finish();
    expect(&rt, end == Err(CertFault::Failed), "the end");
}

#[test]
fn takes_a_long_line(rt: HostRuntime) {
    let long = vec![in rt.alloc(); b'e'; 1_048_576].expect(&rt, "memory");
    let mut reader = Reader::new(rt.alloc(), 1_048_576);
    let header = reader.feed(b"threshold-certificate 1\n");
    expect_answer(&rt, rt.alloc(), header, "1 header 1, ");
    expect_answer(&rt, rt.alloc(), reader.feed(long.as_slice()), "");
    expect_answer(&rt, rt.alloc(), reader.feed(b"e"), "Line(2)");
}
