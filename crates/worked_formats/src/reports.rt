//! Texts that are written out by hand.
use crate::builders::{graph, label};
use comp_graph::Weights;
use plan_report::{
    CacheFacts, Facts, PartFacts, cache_text, graph_text, outputs_text, parts_text, report,
    trial_text,
};
use std::test::Fail;

// Kernels, with the texts of their graphs.
const GRAPHS: [(&[u8], &[u8]); 2] = [
    (
        b"kernel q { in x; out y; y = x * x; }",
        b"vertices 2\ninputs 1\ndegree 1\n0 in x\n1 mul v0 v0\nout y v1\n",
    ),
    (
        b"kernel c { in A[2]; out y[2]; out z; y[0] = sel(A[1], -9223372036854775807 - 1, A[0]); y[1] = 0; z = A[0]; }",
        b"vertices 4\ninputs 2\ndegree 2\n0 in A[0]\n1 in A[1]\n2 sel v1 #-9223372036854775808 v0\n3 set #0\nout y[0] v2\nout y[1] v3\nout z v0\n",
    ),
];

#[test]
fn graphs(rt: HostRuntime) -> Result<(), Fail> {
    for (kernel, expected) in &GRAPHS {
        let graph = graph(rt.alloc(), kernel)?;
        let text = graph_text(rt.alloc(), &graph)?;
        assert!(rt; text.as_slice() == *expected);
    }
    Ok(())
}

#[test]
fn outputs(rt: HostRuntime) -> Result<(), Fail> {
    let names = vec![in rt.alloc(); label(rt.alloc(), "y")?, label(rt.alloc(), "z[0][2]")?]?;
    let text = outputs_text(rt.alloc(), &names, &[144, i64::MIN])?;
    assert!(rt; text.as_slice() == b"y = 144\nz[0][2] = -9223372036854775808\n".as_slice());
    let text = outputs_text(rt.alloc(), &[], &[])?;
    assert!(rt; text.is_empty());
    Ok(())
}

const FACTS: Facts = Facts {
    vertices: 2,
    inputs: 1,
    degree: 1,
    slots: 3,
    weights: Weights { load: 1, store: 1 },
    first: 6,
    cost: 5,
    bound: 4,
    expanded: 7,
    budget: 20000,
    optimal: false,
};

const WEIGHED: Facts = Facts {
    weights: Weights { load: 1, store: 16 },
    ..FACTS
};

// Facts of plans of a kernel `p`, with their reports.
const REPORTS: [(Facts, &[u8]); 2] = [
    (
        FACTS,
        b"; kernel p\n; vertices 2\n; inputs 1\n; degree 1\n; slots 3\n; first 6\n; cost 5\n; bound 4\n; expanded 7\n; budget 20000\n; verdict Open\n",
    ),
    (
        WEIGHED,
        b"; kernel p\n; vertices 2\n; inputs 1\n; degree 1\n; slots 3\n; load 1\n; store 16\n; first 6\n; cost 5\n; bound 4\n; expanded 7\n; budget 20000\n; verdict Open\n",
    ),
];

#[test]
fn reports(rt: HostRuntime) -> Result<(), Fail> {
    let title = label(rt.alloc(), "p")?;
    for (facts, expected) in &REPORTS {
        let text = report(rt.alloc(), &title, facts)?;
        assert!(rt; text.as_slice() == *expected);
    }
    Ok(())
}

#[test]
fn trials(rt: HostRuntime) -> Result<(), Fail> {
    let text = trial_text(rt.alloc(), 3, &FACTS)?;
    assert!(rt;
        text.as_slice()
            == b"trial 3\nvertices 2\nfirst 6\ncost 5 bound 4\nexpanded 7 Open\n".as_slice()
    );
    Ok(())
}

#[test]
fn caches(rt: HostRuntime) -> Result<(), Fail> {
    let facts = CacheFacts {
        loads: 2,
        stores: 4,
        hits: 7,
        cost: 6,
        plan_cost: 3,
        bound: 1,
    };
    let text = cache_text(rt.alloc(), &facts)?;
    assert!(rt;
        text.as_slice()
            == b"cache loads 2\ncache stores 4\ncache hits 7\ncache cost 6\nplan cost 3 bound 1\n".as_slice()
    );
    Ok(())
}

const PARTS: [PartFacts; 2] = [
    PartFacts {
        vertices: 15,
        cost: 9,
        bound: 9,
    },
    PartFacts {
        vertices: 0,
        cost: 12,
        bound: 7,
    },
];

// A line for each part, between their number and the sum.
#[test]
fn parts(rt: HostRuntime) -> Result<(), Fail> {
    let text = parts_text(rt.alloc(), &PARTS, 16)?;
    assert!(rt;
        text.as_slice()
            == b"parts 2\npart 0 vertices 15 cost 9 bound 9\npart 1 vertices 0 cost 12 bound 7\nsum 16\n".as_slice()
    );
    Ok(())
}
