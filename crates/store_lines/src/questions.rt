//! Questions: the lines of a session that ask the store and that a script does not have, and the texts of replies. Nothing here allocates.

ghost use Rattle.std.specs.Prelude.{◌≡◌, IfErr, OnErr, OnOk};
ghost use Rattle.std.specs.Io.KnownBytes.{Appends};
ghost use Rattle.std.specs.List.{flat_map};
ghost use Rattle.edge.specs.Output.{WroteSome};
ghost use Rattle.store_lines.specs.Grammar.{by_word};
ghost use Rattle.store_lines.specs.Questions.{answer_text, counts_line, list_text, listed_line, object_text, open_upload_line};
ghost use Rattle.store_lines.specs.Questions.{question_of_word, reply_text, session_forms, tenant_line, tenant_lines, tenants_text, totals_line};
ghost use Rattle.store_lines.specs.Questions.{page_front, page_text, uploads_text, usage_text};

use crate::digits::write_digits;
use crate::parsing::number_and_address;
use crate::redo::write_redo;
use crate::texts::{write_held, write_made, write_numbered, write_refusal, write_sealed};
use edge::{Cause, number, three_numbers, two_numbers};
use std::io::Write;
use store_core::{
    Address, Counts, Object, Question, Refusal, Reply, TenantId, Totals, UploadStatus, Usage,
};

/// The question of a line that consists of one word.
pub(crate) fn question_of_word(word: &[u8]) -> Option<Question>
    ensures { result ≡ question_of_word word.now }
{
    if word == b"tenants".as_slice() {
        return Some(Question::Tenants);
    }
    if word == b"counts".as_slice() {
        return Some(Question::Counts);
    }
    None
}

/// The question of a word and the fields after it.
pub(crate) fn session_question(kind: &[u8], fields: &[u8]) -> Option<Question>
    ensures { result ≡ by_word session_forms kind.now fields.now }
{
    if kind == b"has".as_slice() {
        return number_and_address(fields).map(|(tenant, address)| Question::Holds {
            tenant: TenantId::new(tenant),
            address,
        });
    }
    if kind == b"uploads".as_slice() {
        return number(fields).map(|tenant| Question::Uploads {
            tenant: TenantId::new(tenant),
        });
    }
    if kind == b"objects".as_slice() {
        return three_numbers(fields).map(|(tenant, from, count)| Question::Objects {
            tenant: TenantId::new(tenant),
            from,
            count,
        });
    }
    if kind == b"redo".as_slice() {
        return two_numbers(fields).map(|(from, count)| Question::Redo { from, count });
    }
    None
}

/// The answer to a step of the store.
pub(crate) fn write_answer<W: Write>(
    writer: &mut W,
    reply: Result<Reply, Refusal>,
) -> Result<(), Cause>
    ensures wrote { OnOk result (Appends (W.contents writer.old) (W.contents writer.new) (answer_text reply)) }
    ensures failed { OnErr result (WroteSome (W.contents writer.old) (W.contents writer.new) (answer_text reply)) }
    ensures cause { IfErr result (λ cause. cause ≡ Cause.CannotWrite) }
{
    match reply {
        Ok(reply) => write_reply(writer, reply),
        Err(refusal) => write_refusal(writer, refusal),
    }
}

fn write_reply<W: Write>(writer: &mut W, reply: Reply) -> Result<(), Cause>
    ensures wrote { OnOk result (Appends (W.contents writer.old) (W.contents writer.new) (reply_text reply)) }
    ensures failed { OnErr result (WroteSome (W.contents writer.old) (W.contents writer.new) (reply_text reply)) }
    ensures cause { IfErr result (λ cause. cause ≡ Cause.CannotWrite) }
{
    match reply {
        Reply::Tenant(tenant) => write_numbered(writer, "tenant ", tenant.number()),
        Reply::Upload(upload, _) => write_numbered(writer, "upload ", upload.number()),
        Reply::Held(held) => write_held(writer, held),
        Reply::Sealed(reply) => write_sealed(writer, reply.sealed()),
        Reply::Done => write_made(writer, "ok\n"),
        Reply::Object(object) => write_object(writer, object.object()),
        Reply::Usage(usage) => write_usage(writer, usage),
        Reply::List(objects) => write_list(writer, objects.as_slice()),
        Reply::Length(len) => write_numbered(writer, "has ", len),
        Reply::Uploads(uploads) => write_uploads(writer, uploads.as_slice()),
        Reply::Objects(page) => write_page(writer, page.next_number(), page.objects()),
        Reply::Tenants(usages) => write_tenants(writer, usages.as_slice()),
        Reply::Totals(totals) => write_totals(writer, totals),
        Reply::Counts(counts) => write_counts(writer, counts),
        Reply::Redo(redo) => write_redo(writer, &redo),
    }
}

fn write_object<W: Write>(writer: &mut W, object: &Object) -> Result<(), Cause>
    ensures wrote { OnOk result (Appends (W.contents writer.old) (W.contents writer.new) (object_text object.now)) }
    ensures failed { OnErr result (WroteSome (W.contents writer.old) (W.contents writer.new) (object_text object.now)) }
    ensures cause { IfErr result (λ cause. cause ≡ Cause.CannotWrite) }
{
    let len = object.len();
    if len == 0 {
        return write_made(writer, format_args!("object {len} -\n"));
    }
    write_made(writer, format_args!("object {len} "))?;
    write_digits(writer, object.segments())
}

fn write_usage<W: Write>(writer: &mut W, usage: Usage) -> Result<(), Cause>
    ensures wrote { OnOk result (Appends (W.contents writer.old) (W.contents writer.new) (usage_text usage)) }
    ensures failed { OnErr result (WroteSome (W.contents writer.old) (W.contents writer.new) (usage_text usage)) }
    ensures cause { IfErr result (λ cause. cause ≡ Cause.CannotWrite) }
{
    let Usage {
        used,
        reserved,
        limit,
    } = usage;
    write_made(
        writer,
        format_args!("used {used} reserved {reserved} limit {limit}\n"),
    )
}

fn write_list<W: Write>(writer: &mut W, objects: &[(Address, u64)]) -> Result<(), Cause>
    ensures wrote { OnOk result (Appends (W.contents writer.old) (W.contents writer.new) (list_text objects.now)) }
    ensures failed { OnErr result (WroteSome (W.contents writer.old) (W.contents writer.new) (list_text objects.now)) }
    ensures cause { IfErr result (λ cause. cause ≡ Cause.CannotWrite) }
{
    write_numbered(writer, "list ", objects.len() as u64)?;
    write_listed(writer, objects)
}

fn write_listed<W: Write>(writer: &mut W, objects: &[(Address, u64)]) -> Result<(), Cause>
    ensures wrote { OnOk result (Appends (W.contents writer.old) (W.contents writer.new) (flat_map listed_line objects.now)) }
    ensures failed { OnErr result (WroteSome (W.contents writer.old) (W.contents writer.new) (flat_map listed_line objects.now)) }
    ensures cause { IfErr result (λ cause. cause ≡ Cause.CannotWrite) }
{
    for object in objects {
        write_listed_line(writer, *object)?;
    }
    Ok(())
}

fn write_listed_line<W: Write>(writer: &mut W, object: (Address, u64)) -> Result<(), Cause>
    ensures wrote { OnOk result (Appends (W.contents writer.old) (W.contents writer.new) (listed_line object)) }
    ensures failed { OnErr result (WroteSome (W.contents writer.old) (W.contents writer.new) (listed_line object)) }
    ensures cause { IfErr result (λ cause. cause ≡ Cause.CannotWrite) }
{
    let (address, len) = object;
    write_made(writer, format_args!("{address} {len}\n"))
}

fn write_page<W: Write>(writer: &mut W, next: u64, objects: &[(Address, u64)]) -> Result<(), Cause>
    ensures wrote { OnOk result (Appends (W.contents writer.old) (W.contents writer.new) (page_text next objects.now)) }
    ensures failed { OnErr result (WroteSome (W.contents writer.old) (W.contents writer.new) (page_text next objects.now)) }
    ensures cause { IfErr result (λ cause. cause ≡ Cause.CannotWrite) }
{
    write_page_front(writer, next, objects.len() as u64)?;
    write_listed(writer, objects)
}

fn write_page_front<W: Write>(writer: &mut W, next: u64, len: u64) -> Result<(), Cause>
    ensures wrote { OnOk result (Appends (W.contents writer.old) (W.contents writer.new) (page_front next len)) }
    ensures failed { OnErr result (WroteSome (W.contents writer.old) (W.contents writer.new) (page_front next len)) }
    ensures cause { IfErr result (λ cause. cause ≡ Cause.CannotWrite) }
{
    write_made(writer, format_args!("objects {next} {len}\n"))
}

fn write_uploads<W: Write>(writer: &mut W, uploads: &[UploadStatus]) -> Result<(), Cause>
    ensures wrote { OnOk result (Appends (W.contents writer.old) (W.contents writer.new) (uploads_text uploads.now)) }
    ensures failed { OnErr result (WroteSome (W.contents writer.old) (W.contents writer.new) (uploads_text uploads.now)) }
    ensures cause { IfErr result (λ cause. cause ≡ Cause.CannotWrite) }
{
    write_numbered(writer, "uploads ", uploads.len() as u64)?;
    write_open(writer, uploads)
}

fn write_open<W: Write>(writer: &mut W, uploads: &[UploadStatus]) -> Result<(), Cause>
    ensures wrote { OnOk result (Appends (W.contents writer.old) (W.contents writer.new) (flat_map open_upload_line uploads.now)) }
    ensures failed { OnErr result (WroteSome (W.contents writer.old) (W.contents writer.new) (flat_map open_upload_line uploads.now)) }
    ensures cause { IfErr result (λ cause. cause ≡ Cause.CannotWrite) }
{
    for upload in uploads {
        write_upload_line(writer, *upload)?;
    }
    Ok(())
}

fn write_upload_line<W: Write>(writer: &mut W, reported: UploadStatus) -> Result<(), Cause>
    ensures wrote { OnOk result (Appends (W.contents writer.old) (W.contents writer.new) (open_upload_line reported)) }
    ensures failed { OnErr result (WroteSome (W.contents writer.old) (W.contents writer.new) (open_upload_line reported)) }
    ensures cause { IfErr result (λ cause. cause ≡ Cause.CannotWrite) }
{
    let UploadStatus {
        upload,
        bound,
        end,
        held,
    } = reported;
    match end {
        Some(end) => write_made(writer, format_args!("{upload} {bound} {end} {held}\n")),
        None => write_made(writer, format_args!("{upload} {bound} - {held}\n")),
    }
}

fn write_tenants<W: Write>(writer: &mut W, usages: &[Usage]) -> Result<(), Cause>
    ensures wrote { OnOk result (Appends (W.contents writer.old) (W.contents writer.new) (tenants_text usages.now)) }
    ensures failed { OnErr result (WroteSome (W.contents writer.old) (W.contents writer.new) (tenants_text usages.now)) }
    ensures cause { IfErr result (λ cause. cause ≡ Cause.CannotWrite) }
{
    write_numbered(writer, "tenants ", usages.len() as u64)?;
    write_tenant_lines(writer, usages)
}

fn write_tenant_lines<W: Write>(writer: &mut W, usages: &[Usage]) -> Result<(), Cause>
    ensures wrote { OnOk result (Appends (W.contents writer.old) (W.contents writer.new) (tenant_lines 0 usages.now)) }
    ensures failed { OnErr result (WroteSome (W.contents writer.old) (W.contents writer.new) (tenant_lines 0 usages.now)) }
    ensures cause { IfErr result (λ cause. cause ≡ Cause.CannotWrite) }
{
    let mut number = 0u64;
    for usage in usages {
        write_tenant_line(writer, number, usage)?;
        number += 1;
    }
    Ok(())
}

fn write_tenant_line<W: Write>(writer: &mut W, number: u64, usage: &Usage) -> Result<(), Cause>
    ensures wrote { OnOk result (Appends (W.contents writer.old) (W.contents writer.new) (tenant_line number usage.now)) }
    ensures failed { OnErr result (WroteSome (W.contents writer.old) (W.contents writer.new) (tenant_line number usage.now)) }
    ensures cause { IfErr result (λ cause. cause ≡ Cause.CannotWrite) }
{
    let Usage {
        used,
        reserved,
        limit,
    } = *usage;
    write_made(writer, format_args!("{number} {used} {reserved} {limit}\n"))
}

fn write_totals<W: Write>(writer: &mut W, totals: Totals) -> Result<(), Cause>
    ensures wrote { OnOk result (Appends (W.contents writer.old) (W.contents writer.new) (totals_line totals)) }
    ensures failed { OnErr result (WroteSome (W.contents writer.old) (W.contents writer.new) (totals_line totals)) }
    ensures cause { IfErr result (λ cause. cause ≡ Cause.CannotWrite) }
{
    write_made(writer, format_args!("{totals}\n"))
}

fn write_counts<W: Write>(writer: &mut W, counts: Counts) -> Result<(), Cause>
    ensures wrote { OnOk result (Appends (W.contents writer.old) (W.contents writer.new) (counts_line counts)) }
    ensures failed { OnErr result (WroteSome (W.contents writer.old) (W.contents writer.new) (counts_line counts)) }
    ensures cause { IfErr result (λ cause. cause ≡ Cause.CannotWrite) }
{
    let Counts {
        entries,
        tenants,
        totals,
    } = counts;
    write_made(writer, format_args!("entries {entries} tenants {tenants} "))?;
    write_totals(writer, totals)
}
