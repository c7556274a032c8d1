//! The words of a call.

use crate::files::Form;
use asn1_engine::Options;
use asn1_schema::coding::Coding;
use asn1_typed::Decoding;
use asn1_typed::reading::MOST_DEPTH;
use clap::{Arg, ArgAction, ArgMatches, Command, value_parser};
use std::alloc::{AllocError, Global};

/// As many octets of a file are read where the call says nothing else: 1 GiB.
const MOST_OCTETS: u64 = 0x4000_0000;

/// As many columns a value has where the call says nothing else.
const WIDTH: u64 = 64;

/// What is asked of each file.
#[derive(Debug, Clone, Copy)]
pub enum Task {
    /// The tree of the elements, from an offset on. With an offset it is that of the element there alone.
    Dump(Options, Option<usize>),
    /// Whether the octets are strict DER; with every departure where that is asked.
    Check(bool),
}

/// What is asked.
#[derive(Debug, Clone, Copy)]
pub struct Call {
    /// The task.
    pub task: Task,
    /// How the files hold octets.
    pub form: Form,
    /// As many octets of a file are read at most.
    pub most: u64,
}

/// What is asked of each file by a type.
#[derive(Debug, Clone, Copy)]
pub enum TypedTask {
    /// Its value as JSON.
    Decode(Decoding),
    /// The values that it has in a row, each as JSON in a line.
    DecodeLines(Decoding),
    /// Whether it is the strict encoding of a value.
    Check,
}

/// What is asked by the types of modules.
#[derive(Debug, Clone, Copy)]
pub struct TypedCall<'m> {
    /// The files of modules; without one, those that are built in.
    pub modules: &'m [&'m str],
    /// The name of the type; without one, the label of a block of PEM says it.
    pub name: Option<&'m str>,
    /// The task.
    pub task: TypedTask,
    /// How the files hold octets.
    pub form: Form,
    /// As many octets of a file are read at most.
    pub most: u64,
}

/// What is asked of a file of JSON.
#[derive(Debug, Clone, Copy)]
pub struct EncodeCall<'m> {
    /// The files of modules; without one, those that are built in.
    pub modules: &'m [&'m str],
    /// The name of the type.
    pub name: &'m str,
    /// The file of JSON.
    pub file: &'m str,
    /// The file that octets are written to; without it, standard output.
    pub output: Option<&'m str>,
    /// The label of the block of PEM that they are written as, if they are.
    pub label: Option<&'m str>,
    /// As many octets of a file are read at most.
    pub most: u64,
}

/// An option with a number.
fn number<'a>(alloc: Global, id: &'a str, value: &'a str, help: &'a str) -> Arg<'a> {
    Arg::new(alloc, id)
        .long(id)
        .value_name(value)
        .help(help)
        .value_parser(value_parser!(u64))
        .action(ArgAction::Set)
}

/// An option that is given or not.
fn flag<'a>(alloc: Global, id: &'a str, help: &'a str) -> Arg<'a> {
    Arg::new(alloc, id)
        .long(id)
        .help(help)
        .action(ArgAction::SetTrue)
}

/// The option that limits files.
fn most_octets<'a>(alloc: Global) -> Arg<'a> {
    number(
        alloc,
        "max-octets",
        "COUNT",
        "Files of more octets are refused; 1073741824 by itself",
    )
}

/// Adds what commands have that read octets.
fn with_files<'a>(alloc: Global, command: Command<'a>) -> Result<Command<'a>, AllocError> {
    let form = Arg::new(alloc, "from")
        .long("from")
        .value_name("FORM")
        .help("How the files hold octets: PEM where a line begins a block, else as they are")
        .value_parser(["auto", "der", "pem", "hex", "base64"].as_slice())
        .action(ArgAction::Set);
    let most = most_octets(alloc);
    let file = Arg::new(alloc, "file")
        .value_name("FILE")
        .help("A file, or - for standard input")
        .required(true)
        .num_args(1..)
        .action(ArgAction::Append);
    command.arg(form)?.arg(most)?.arg(file)
}

/// The words of `dump`.
fn dump_command<'a>(alloc: Global) -> Result<Command<'a>, AllocError> {
    let command = Command::new(alloc, "dump")
        .about("Prints the elements of files, a line each, by BER")
        .after_help("Example: asn1 dump --depth 3 certificate.pem")
        .arg(flag(alloc, "no-inner", "Shows no elements in strings"))?
        .arg(number(
            alloc,
            "at",
            "OFFSET",
            "Shows the element at this offset alone",
        ))?
        .arg(number(
            alloc,
            "depth",
            "COUNT",
            "Shows no elements in as many elements or more",
        ))?
        .arg(number(
            alloc,
            "width",
            "COUNT",
            "As many columns a value has at most, 64 by itself; numbers and identifiers of 40 octets have all",
        ))?
        .arg(flag(
            alloc,
            "json",
            "Prints each element as an object of JSON in a line",
        ))?;
    with_files(alloc, command)
}

/// The words of `check`.
fn check_command<'a>(alloc: Global) -> Result<Command<'a>, AllocError> {
    let command = Command::new(alloc, "check")
        .about("Tells whether files are strict DER, and if not, at which octet and by which rule")
        .after_help("Example: asn1 check certificate.pem key.der")
        .arg(flag(
            alloc,
            "all",
            "Goes on behind the first departure, where that can be",
        ))?
        .arg(module_files(alloc))?
        .arg(type_name(
            alloc,
            "Tells also whether they are of this type, as Certificate or PKCS-1.RSAPrivateKey",
        ))?;
    with_files(alloc, command)
}

/// The option that names files of modules.
fn module_files<'a>(alloc: Global) -> Arg<'a> {
    Arg::new(alloc, "module")
        .long("module")
        .value_name("FILE")
        .help(
            "A file of ASN.1 modules, or - for standard input; without one, those that are built in",
        )
        .action(ArgAction::Append)
}

/// The option that names a type.
fn type_name<'a>(alloc: Global, help: &'a str) -> Arg<'a> {
    Arg::new(alloc, "type")
        .long("type")
        .value_name("NAME")
        .help(help)
        .action(ArgAction::Set)
}

/// The words of `decode`.
fn decode_command<'a>(alloc: Global) -> Result<Command<'a>, AllocError> {
    let name = type_name(
        alloc,
        "The type, as Certificate or PKCS-1.RSAPrivateKey; without it, a label of PEM says it",
    );
    let rules = Arg::new(alloc, "rules")
        .long("rules")
        .value_name("RULES")
        .help("The rules that octets are read by; der by itself")
        .value_parser(["der", "ber"].as_slice())
        .action(ArgAction::Set);
    let command = Command::new(alloc, "decode")
        .about("Prints the values of files as JSON, by a type of ASN.1 modules")
        .after_help("Example: asn1 decode --type Certificate certificate.der")
        .arg(module_files(alloc))?
        .arg(name)?
        .arg(rules)?
        .arg(flag(
            alloc,
            "lines",
            "Files are of values in a row, each of which has a line",
        ))?
        .arg(flag(
            alloc,
            "pretty",
            "JSON has a line for each member, as on a terminal",
        ))?;
    with_files(alloc, command)
}

/// An option with a word.
fn word<'a>(alloc: Global, id: &'a str, value: &'a str, help: &'a str) -> Arg<'a> {
    Arg::new(alloc, id)
        .long(id)
        .value_name(value)
        .help(help)
        .action(ArgAction::Set)
}

/// The words of `encode`.
fn encode_command<'a>(alloc: Global) -> Result<Command<'a>, AllocError> {
    let name = type_name(alloc, "The type, as Certificate or PKCS-1.RSAPrivateKey");
    let output = word(
        alloc,
        "output",
        "FILE",
        "The file that is written; without it, standard output",
    );
    let label = word(
        alloc,
        "pem",
        "LABEL",
        "Writes a block of PEM with this label, as CERTIFICATE",
    );
    let file = Arg::new(alloc, "file")
        .value_name("FILE")
        .help("A file of JSON, as decode prints it, or - for standard input")
        .required(true)
        .action(ArgAction::Set);
    Command::new(alloc, "encode")
        .about("Writes the value of a file of JSON by DER, by a type of ASN.1 modules")
        .after_help(
            "Example: asn1 encode --type Certificate --pem CERTIFICATE -o new.pem value.json",
        )
        .arg(module_files(alloc))?
        .arg(name.required(true))?
        .arg(output.short('o'))?
        .arg(label)?
        .arg(most_octets(alloc))?
        .arg(file)
}

/// The words of `types`.
fn types_command<'a>(alloc: Global) -> Result<Command<'a>, AllocError> {
    Command::new(alloc, "types")
        .about(
            "Prints the types of modules, a line each, what is left out, and whether they are sound",
        )
        .after_help("Example: asn1 types --module names.asn1 --module certificates.asn1")
        .arg(flag(
            alloc,
            "normal",
            "Prints the modules in their normal form instead",
        ))?
        .arg(module_files(alloc))?
        .arg(most_octets(alloc))
}

/// The program's own words.
pub fn command<'a>(alloc: Global) -> Result<Command<'a>, AllocError> {
    Command::new(alloc, "asn1")
        .version("0.1")
        .about("Shows what is in files of ASN.1, also as JSON by the types of modules")
        .after_help(
            "Example: asn1 dump certificate.pem\n\nStatus: 0, or 1 for refused octets, or 2 for any other failure",
        )
        .subcommand_required(true)
        .arg_required_else_help(true)
        .subcommand(dump_command(alloc)?)?
        .subcommand(check_command(alloc)?)?
        .subcommand(decode_command(alloc)?)?
        .subcommand(encode_command(alloc)?)?
        .subcommand(types_command(alloc)?)
}

/// A number that a call gives.
fn given(matches: &ArgMatches<'_>, id: &str) -> Option<usize> {
    let number = matches.get_one::<u64>(id)?;
    Some(number as usize)
}

/// As many octets of a file are read at most.
pub fn most(matches: &ArgMatches<'_>) -> u64 {
    matches.get_one::<u64>("max-octets").unwrap_or(MOST_OCTETS)
}

/// Whether modules are printed in their normal form.
pub fn is_normal(matches: &ArgMatches<'_>) -> bool {
    matches.get_flag("normal")
}

/// The files of modules that a call names.
pub fn modules<'m>(matches: &'m ArgMatches<'_>) -> &'m [&'m str] {
    matches.get_strs("module").unwrap_or(&[])
}

/// How the files of a call hold octets.
fn form(matches: &ArgMatches<'_>) -> Form {
    match matches.get_str("from") {
        Some("der") => Form::Octets,
        Some("pem") => Form::Pem,
        Some("hex") => Form::Hexadecimal,
        Some("base64") => Form::Base64,
        _ => Form::Told,
    }
}

/// What `decode` asks of each file. On a terminal JSON has a line for each member, but where each value has a line.
fn decode_task(matches: &ArgMatches<'_>, on_terminal: bool) -> TypedTask {
    let lines = matches.get_flag("lines");
    let by = Decoding {
        coding: match matches.get_str("rules") {
            Some("ber") => Coding::Ber(MOST_DEPTH),
            _ => Coding::Der,
        },
        pretty: !lines && (on_terminal || matches.get_flag("pretty")),
    };
    if lines {
        TypedTask::DecodeLines(by)
    } else {
        TypedTask::Decode(by)
    }
}

/// What the words ask for by the types of modules, if they do.
pub fn asked_by_type<'m>(
    name: &str,
    matches: &'m ArgMatches<'_>,
    on_terminal: bool,
) -> Option<TypedCall<'m>> {
    if name != "decode" && name != "check" {
        return None;
    }
    let call = TypedCall {
        modules: modules(matches),
        name: matches.get_str("type"),
        task: if name == "check" {
            TypedTask::Check
        } else {
            decode_task(matches, on_terminal)
        },
        form: form(matches),
        most: most(matches),
    };
    if name == "check" && call.name.is_none() && call.modules.is_empty() {
        return None;
    }
    Some(call)
}

/// What the words of `encode` ask for.
pub fn asked_to_encode<'m>(matches: &'m ArgMatches<'_>) -> Option<EncodeCall<'m>> {
    Some(EncodeCall {
        modules: modules(matches),
        name: matches.get_str("type")?,
        file: matches.get_str("file")?,
        output: matches.get_str("output"),
        label: matches.get_str("pem"),
        most: most(matches),
    })
}

/// What the words ask for.
pub fn asked(name: &str, matches: &ArgMatches<'_>) -> Call {
    let task = if name == "check" {
        Task::Check(matches.get_flag("all"))
    } else {
        let options = Options {
            inner: !matches.get_flag("no-inner"),
            depth: given(matches, "depth").unwrap_or(usize::MAX),
            width: given(matches, "width").unwrap_or(WIDTH as usize),
            json: matches.get_flag("json"),
        };
        Task::Dump(options, given(matches, "at"))
    };
    let form = form(matches);
    let most = most(matches);
    Call { task, form, most }
}
