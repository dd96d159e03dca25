//! What requests ask for.
ghost use Rattle.std.specs.Prelude.{◌≡◌, true, IfOk, IsSome};
ghost use Rattle.std.specs.List.{list_all};
ghost use Rattle.mk_base.specs.Trees.{is_in_range};
ghost use Rattle.mk_plan.specs.Plans.{IsValidPlan, RefersInside};
ghost use Rattle.mk_plan_names.specs.Names.{AreNamesOf};
ghost use Rattle.mk_async.specs.Asked.{asked_in, is_asked_in_range};

use crate::common::{checked, lending_plan, read};
use mk_async::{Asked, given_values, judge, plain_content};
use mk_base::{Json, List, Mem, Members, SimNo, Text};
use mk_json::JsonFault;
use mk_plan::{Plan, SetValue};
use mk_plan_check::PlanFault;
use mk_plan_names::Names;
use std::alloc::Global;

// A list of one argument.
fn one(alloc: Global, text: &str) -> Result<List<Json>, JsonFault>
    ensures { IfOk result (λ args. list_all is_in_range args ≡ true) }
{
    let mut args = List::new(alloc);
    args.push(read(alloc, text)?)?;
    Ok(args)
}

// Values that are set, a line each.
fn lines(alloc: Global, sets: &[SetValue]) -> Result<String, Mem> {
    let mut lines = String::new(alloc);
    for set in sets {
        let value = std::str::from_utf8(set.value.bytes()).unwrap_or("");
        let line = format!(in alloc;
            "{} {} {} {value}\n",
            set.source.as_str(),
            set.entity,
            set.attr.as_str()
        )?;
        lines.push_str(line.as_str())?;
    }
    Ok(lines)
}

// The values that a request sets.
fn sets(alloc: Global, plan: &Plan, names: &Names, asked: &Asked) -> Result<String, Mem>
    requires names { AreNamesOf plan.now names.now }
    requires form { IsSome (asked_in asked.now) }
    requires range { is_asked_in_range asked.now ≡ true }
{
    let given = given_values(alloc, plan, names, asked)?;
    lines(alloc, given.as_slice())
}

// The content of the answer to a request.
fn content_of(alloc: Global, plan: &Plan, names: &Names, asked: &Asked) -> Result<String, Mem>
    requires references { RefersInside plan.now }
    requires names { AreNamesOf plan.now names.now }
    requires form { IsSome (asked_in asked.now) }
{
    match plain_content(alloc, plan, names, asked)? {
        Some(text) => Ok(String::from_utf8_lossy(alloc, text.bytes())?),
        None => Ok(String::from_str(alloc, "none")?),
    }
}

// The values that a request of B to set data sets, or the content of the answer to another one.
fn told(
    alloc: Global,
    plan: &Plan,
    names: &Names,
    name: &Text,
    args: &List<Json>,
) -> Result<String, Mem>
    requires references { RefersInside plan.now }
    requires names { AreNamesOf plan.now names.now }
    requires range { list_all is_in_range args.now ≡ true }
{
    let named = Json::Object(Members::new(alloc));
    match judge(plan, names, SimNo(1), name, args, &named) {
        Ok(asked) => {
            if name.as_str() == "set_data" {
                sets(alloc, plan, names, &asked)
            } else {
                content_of(alloc, plan, names, &asked)
            }
        }
        Err(_) => Ok(String::from_str(alloc, "refused")?),
    }
}

fn is_text(text: Result<String, Mem>, want: &str) -> bool {
    match text {
        Ok(text) => text.as_str() == want,
        Err(_) => false,
    }
}

// A request of B: its function, its argument, and what it sets or the content of its answer.
type Row = (&'static str, &'static str, &'static str);

fn is_told_by(alloc: Global, plan: &Plan, names: &Names, args: &List<Json>, row: &Row) -> bool
    requires references { RefersInside plan.now }
    requires names { AreNamesOf plan.now names.now }
    requires range { list_all is_in_range args.now ≡ true }
{
    match Text::of(alloc, row.0) {
        Ok(name) => is_text(told(alloc, plan, names, &name, args), row.2),
        Err(_) => false,
    }
}

fn is_told(alloc: Global, plan: &Plan, names: &Names, row: &Row) -> bool
    requires references { RefersInside plan.now }
    requires names { AreNamesOf plan.now names.now }
{
    match one(alloc, row.1) {
        Ok(args) => is_told_by(alloc, plan, names, &args, row),
        Err(_) => false,
    }
}

const SETTING: Row = (
    "set_data",
    r#"{"B-0.a.b":{"A-0.1":{"in":[1,null]},"A-0.0":{"in":"x"}},"B-0.0":{"A-0.1":{"in":-7}}}"#,
    "B-0.0 1 in -7\nB-0.a.b 0 in \"x\"\nB-0.a.b 1 in [1,null]\n",
);

const RELATED: Row = (
    "get_related_entities",
    r#"["B-0.a.b","A-0.1"]"#,
    r#"{"A-0.1":{"A-0.0":{"type":"M"},"B-0.0":{"type":"N"},"B-0.a.b":{"type":"N"}},"B-0.a.b":{}}"#,
);

fn are_told(alloc: Global, plan: &Plan, names: &Names) -> bool
    requires references { RefersInside plan.now }
    requires names { AreNamesOf plan.now names.now }
{
    is_told(alloc, plan, names, &SETTING) && is_told(alloc, plan, names, &RELATED)
}

fn are_told_of(alloc: Global, plan: &Plan) -> bool
    requires { IsValidPlan plan.now }
{
    match Names::new(alloc, plan) {
        Ok(names) => are_told(alloc, plan, &names),
        Err(_) => false,
    }
}

fn valid_plan(alloc: Global) -> Result<Plan, PlanFault>
    ensures { IfOk result (λ plan. IsValidPlan plan) }
{
    checked(alloc, lending_plan(alloc)?)
}

fn are_all_told(alloc: Global) -> bool {
    match valid_plan(alloc) {
        Ok(plan) => are_told_of(alloc, &plan),
        Err(_) => false,
    }
}

#[test]
fn requests_set_values_and_tell_who_is_related(rt: HostRuntime) {
    assert!(rt; are_all_told(rt.alloc()));
}
