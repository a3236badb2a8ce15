ghost use Rattle.std.specs.Prelude.{◌≡◌, ◌≤◌, IfOk, MatchBool, length};
ghost use Rattle.evo_base.specs.Names.{AreDistinct};
ghost use Rattle.evo_first_form.specs.Interface.{declared_names};
ghost use Rattle.evo_first_form.specs.Calls.{calls_of, calls_of_terms};
ghost use Rattle.evo_first_form.specs.Accepted.{AreKnown, IsAcceptedClient};
ghost use Rattle.evo_front.specs.Texts.{file_limit, FindsClient, AcceptsClient};
ghost use Rattle.evo_front.specs.declared.client.ClientFault.TheVariants.{Memory};

use crate::calls::knows;
use evo_base::NameTable;
use evo_first_form::{Client, Interface, Print, Term, client_of};
use evo_iface::declared_table;
use evo_parse::{TextFault, one_module, read_module};
use evo_tree::{Form, Module, SourceFault};
use std::alloc::{AllocError, Global};

/// Why a text gives no client.
#[derive(Clone, Copy, PartialEq, Eq)]
pub enum ClientFault {
    /// It spells no module: the first fault.
    Refused(SourceFault),
    /// It spells a module that is no client of the first form, imports another module, or calls what
    /// the interface does not have.
    NotBuilt,
    /// No memory was left.
    Memory,
}

impl From<AllocError> for ClientFault {
    ghost from_gives = { λ _ e. e ≡ Memory };

    fn from(_: AllocError) -> Self {
        ClientFault::Memory
    }
}

fn knows_terms(functions: &NameTable, terms: &[Term]) -> bool
    ensures { MatchBool result (AreKnown functions.now (calls_of_terms terms.now)) (AreKnown functions.now (calls_of_terms terms.now) → ⊥) }
{
    for term in terms {
        if !knows(functions, term) {
            return false;
        }
    }
    true
}

fn knows_all(functions: &NameTable, prints: &[Print]) -> bool
    ensures { MatchBool result (AreKnown functions.now (calls_of prints.now)) (AreKnown functions.now (calls_of prints.now) → ⊥) }
{
    for print in prints {
        if !knows_terms(functions, print.terms.as_slice()) {
            return false;
        }
    }
    true
}

fn is_accepted(alloc: Global, interface: &Interface, client: &Client) -> Result<bool, AllocError>
    requires { AreDistinct (declared_names interface.now.functions) }
    ensures { IfOk result (λ yes. MatchBool yes (IsAcceptedClient interface.now client.now) (IsAcceptedClient interface.now client.now → ⊥)) }
{
    if client.import.as_slice() != interface.name.as_slice() {
        return Ok(false);
    }
    let functions = declared_table(alloc, interface.functions.as_slice())?;
    Ok(knows_all(&functions, client.prints.as_slice()))
}

// The client that a module is, where it is accepted.
fn client_in(
    alloc: Global,
    interface: &Interface,
    tree: &Module,
) -> Result<Option<Client>, AllocError>
    requires { AreDistinct (declared_names interface.now.functions) }
    ensures { IfOk result (FindsClient interface.now tree.now) }
{
    let Some(client) = client_of(alloc, tree)? else {
        return Ok(None);
    };
    if is_accepted(alloc, interface, &client)? {
        Ok(Some(client))
    } else {
        Ok(None)
    }
}

/// The client of an interface that a text is.
pub fn accept_client(
    alloc: Global,
    interface: &Interface,
    text: &[u8],
) -> Result<Client, ClientFault>
    requires distinct { AreDistinct (declared_names interface.now.functions) }
    requires short { length text.now ≤ file_limit }
    ensures { AcceptsClient interface.now text.now result }
{
    let tree = match read_module(alloc, text, Form::Client) {
        Ok(tree) => tree,
        Err(TextFault::Refused(fault)) => return Err(ClientFault::Refused(fault)),
        Err(TextFault::Memory) => return Err(ClientFault::Memory),
    };
    match client_in(alloc, interface, &tree)? {
        Some(client) => Ok(client),
        None => {
            one_module();
            Err(ClientFault::NotBuilt)
        }
    }
}
