//! What is to be done with a request.
ghost use Rattle.std.specs.Prelude.{◌≡◌, IfSome, IsAscii, bytes_eq, option_map};
ghost use Rattle.matchit.specs.Params.{AllText, named};
ghost use Rattle.dip_http_messages.specs.Fronts.{ask_view};
ghost use Rattle.dip_http_messages.specs.Places.{place_of};
ghost use Rattle.dip_http_messages.specs.Taken.{place_with, taken};
ghost use Rattle.dip_http_messages.specs.Verdicts.{ask_verdict, is_get, is_head, letter_verdict, only_get, place_verdict};
ghost use Rattle.dip_http_messages.specs.AnswerViews.{plan_view};

use crate::front::RequestFront;
use crate::refusals::HttpRefusal;
use crate::size::Size;
use crate::table::{Route, Routes};
use http::Method;
use matchit::Params;

/// How a request is to be answered, as far as its head tells; the desk hasn't been asked yet.
#[derive(Clone, Copy)]
pub enum Plan<'b> {
    /// The head alone is reason enough to refuse it.
    Refuse(HttpRefusal),
    /// The public part of the game of this name is shown.
    Game(&'b str),
    /// A paper is shown: its game's name, and its number as the path has it.
    Paper(&'b str, &'b str),
    /// A letter of so many bytes is taken.
    Letter(usize),
}

fn is_method(method: &[u8], other: &Method) -> bool
    ensures { result ≡ bytes_eq method.now other.now }
{
    method == other.as_str().as_bytes()
}

/// Whether the answer goes without its body: to HEAD.
pub fn is_quiet(method: &[u8]) -> bool
    ensures { result ≡ is_head method.now }
{
    is_method(method, &Method::HEAD)
}

fn is_get(method: &[u8]) -> bool
    ensures { result ≡ is_get method.now }
{
    is_method(method, &Method::GET) || is_quiet(method)
}

fn letter_plan<'b>(size: Size) -> Plan<'b>
    ensures { plan_view result ≡ letter_verdict size }
{
    match size {
        Size::Unsaid => Plan::Refuse(HttpRefusal::LengthRequired),
        Size::Fits(n) => Plan::Letter(n),
        Size::TooLarge => Plan::Refuse(HttpRefusal::TooLarge),
    }
}

/// What a parameter took of the path.
fn param<'b>(params: &Params<'_, 'b>, name: &str) -> Option<&'b str>
    requires { AllText (taken params.now) }
    ensures { option_map (λ v. v.now) result ≡ named name.now (taken params.now) }
{
    params.get(name)
}

/// This plan, where the method may have it.
fn get_plan<'b>(method: &[u8], plan: Plan<'b>) -> Plan<'b>
    ensures { plan_view result ≡ only_get method.now (plan_view plan.entry) }
{
    if is_get(method) {
        plan
    } else {
        Plan::Refuse(HttpRefusal::OnlyGet)
    }
}

/// The plan for a route, with what its parameters took of the path.
fn route_plan<'b>(method: &[u8], size: Size, route: Route, params: &Params<'_, 'b>) -> Plan<'b>
    requires { AllText (taken params.now) }
    ensures { plan_view result
        ≡ place_verdict method.now size (place_with route (taken params.now)) }
{
    match route {
        Route::Letters => {
            if is_method(method, &Method::POST) {
                letter_plan(size)
            } else {
                Plan::Refuse(HttpRefusal::OnlyPost)
            }
        }
        Route::Game => match param(params, "game") {
            Some(game) => get_plan(method, Plan::Game(game)),
            None => Plan::Refuse(HttpRefusal::NotFound),
        },
        Route::Paper => match (param(params, "game"), param(params, "number")) {
            (Some(game), Some(number)) => get_plan(method, Plan::Paper(game, number)),
            _ => Plan::Refuse(HttpRefusal::NotFound),
        },
    }
}

/// The plan for a path. Nothing in a path is percent-decoded.
fn path_plan<'b>(routes: &Routes, method: &[u8], size: Size, path: &'b str) -> Plan<'b>
    requires { IsAscii path.now }
    ensures { plan_view result ≡ place_verdict method.now size (place_of path.entry.now) }
{
    match routes.router.at(path) {
        Ok(found) => route_plan(method, size, *found.value, &found.params),
        Err(_) => Plan::Refuse(HttpRefusal::NotFound),
    }
}

/// The plan for a request, by its method, its path and the size of its body. It is refused with 400
/// where its fields or its target are refused.
pub fn plan_of<'b>(routes: &Routes, front: &RequestFront<'b>) -> Plan<'b>
    requires { IfSome front.now.asked (λ a. IsAscii a.path.now) }
    ensures { plan_view result
        ≡ ask_verdict front.now.method.now (option_map ask_view front.now.asked) }
{
    match front.asked {
        None => Plan::Refuse(HttpRefusal::BadRequest),
        Some(asked) => path_plan(routes, front.method, asked.size, asked.path),
    }
}
